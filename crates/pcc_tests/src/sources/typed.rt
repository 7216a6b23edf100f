//! Programs that are typed.

/// What a reader might take for a fault.
pub(crate) const TYPED: &str = "\
41 rows
int f(int f){return f;} int main(void){int x=1; {int x=2; return x+f(1);}}
int short signed const x; signed y; char signed z; int main(void){return 0;}
signed int w; short v; short int u; int main(void){return 0;}
int main(void){auto int x=1; register int y; int static z=3; return x+y+z;}
int f(register int x); int main(void){for(register int i=0;i<1;i++); for(auto int i=0;;)break; return 0;}
int f(int, char *, short a[], int b[4]); int g(const void){return 1;} int main(){return g();}
int f(void), g(int a[], int b[2]), h; extern int h; int main(void){int *p, a[2]; static int n; return n;}
int i(int x); int main(void){int i; {int i; i=1;} static int s[2], t; return i=t;}
int f(int a){{int a; return a;}} int main(void){return 0;}
int a[(char)257]; int b[1?2:1/0]; int c[-(-3)]; int d['a'<<1]; int main(void){return 0;}
int a[]={1,2}; int a[2]; char s[]=\"ab\"; char s[3]; int main(void){return 0;}
char t[]={\"ab\",}; char t[3]; int main(void){char u[]=\"x\"; return u[1];}
static int x; extern int x; static int f(void); int f(void){return x;} int main(void){return f();}
int f(int a[]); int f(int *p){return *p;} int f(int b[7]); int main(void){return 0;}
int main(void){for(int i=0;i<3;i++){int i=2; i++;} int i; return i=0;}
int putchar(int c); int getchar(void); void exit(int status); int main(void){putchar(getchar()); exit(0);}
int main(void){int putchar=1; return putchar;}
int x=1; int main(void){return x;}$int x;$extern int x;
static int x=1; int main(void){return x;}$static char x=2;$int x(void){return 1;}
int f(void){return 1;}$int f(void); int main(void){return f();}
extern int x; int main(void){return 2+x;}$int x;
extern int x; int f(int a); int main(void){return 2;}
int main(void){int *p; int a[3]; p=a+1; p=1+a; p-a; p-1; p<a; p<=a; p==a; return 0;}
int main(void){int *p; int a[3]; p!=0; 0==p; p?a:0; 1?0:p; !p; p&&a; p||0; return 0;}
int main(void){int *p; p=0; p=1-1; p='a'-97; p=(char)0; p=(0); p=1&&0; return p==(2>3);}
int main(void){int a[2]; int *p=&a[1]; p=&*p; p=&(a[0]); p=&(*(p)); return *&a[0];}
int main(void){int a[2]; 1[a]=3; return \"abc\"[1]+1[\"abc\"]+*\"x\";}
int main(void){int *p; p=(int*)0; p=(int*)p; (void)p; (void)1; (void)(void)1; return (char)300;}
void v(void){} int main(void){1?v():v(); v(),1; 1,v(); return v(),3;}
int main(void){int x; int *p; (x)=3; (x)++; p++; --p; p+=2; p-=1; return x;}
int main(void){int x; int *p; x<<=2; x%=3; \"abc\"[0]='x'; *p=1; (*p)++; return x;}
int f(char *a){return *a;} int main(void){return f(\"x\")+f(0);}
int x={1}; int y=1||1/0; char c=200; int a[3]={1,2}; int main(void){return 0;}
char s[2]=\"ab\"; char t[3]={\"a\"}; int main(void){static int z=3; return z;}
int main(void){int *p={0}; int a[]={1,2}; int *q=a+1; char s[1]=\"a\"; int x=x; int b[]={b[0]}; return *q;}
int main(void){for(;;)break; for(int i=0,j=1;i<j;i++,j--)continue; return 0;}
int main(void){do ; while(0); while(\"a\")break; if(\"x\"); return 0;}
int main(void){switch(1){case 1: switch(2){case 1: break; default: ;} default: break;} return 0;}
int main(void){switch(1){case 1: break; case 2: {int x; x=1;} case 3: ;} return 0;}
int main(void){while(1){switch(1){case 1: continue; case 2: break;} if(1) continue; break;} return 0;}
void v(void){return;} char c(void){return 300;} int main(void){v(); return c();}";
